// Refusals 8 and 9 for the plans that a session breeds from (document 02, M-100): those that wait, and the children. All functions are internal.

#![tactic(auto)]

ghost use Rattle.std.specs.Prelude.{◌≡◌, ◌++◌, ◌*◌, length};
ghost use Rattle.model.specs.Plan.{plan_count, plan_words};
ghost use Rattle.model.specs.Session.{operators_of};
ghost use Rattle.model.specs.Refusal.{bad_pool, bad_parents};
ghost use Rattle.model.specs.Calls.{refused_by};
ghost use Rattle.session_laws.specs.Refused.{Sound, request_from, word_refusal};

use model::{Refusal, Session};

// Refusal 8 for two slices of plans, the second behind the first, with a session's ideal.
#[tactic(auto, using(crate::proofs::Joined::pools_first, crate::proofs::Joined::pools_second, crate::proofs::bad_pools::Statement::statement))]
fn bad_pools(session: Session, waiting: &[u64], children: &[u64]) -> bool
    requires { Sound session × (plan_count waiting.now * plan_words ≡ length waiting.now) }
    ensures { result ≡ bad_pool (request_from session (waiting.now ++ children.now)) }
{
    let n_obj = session.config.n_obj;
    let ideal = &session.ideal_point[..n_obj];
    plans::bad_pool(waiting, n_obj, ideal) || plans::bad_pool(children, n_obj, ideal)
}

// Refusal 9 for them, with a session's dimensions.
fn bad_parents(session: Session, waiting: &[u64], children: &[u64]) -> bool
    requires { Sound session × (plan_count waiting.now * plan_words ≡ length waiting.now) }
    ensures { result ≡ bad_parents (operators_of session) (request_from session (waiting.now ++ children.now)) }
{
    let n = session.progress.n_dims;
    let dims = session.dimensions;
    parent_checks::bad_parents(waiting, dims, n) || parent_checks::bad_parents(children, dims, n)
}

// 8 or 9 for them, or neither.
pub fn joined_refusal(session: Session, waiting: &[u64], children: &[u64]) -> Result<(), Refusal>
    requires { Sound session × (plan_count waiting.now * plan_words ≡ length waiting.now) }
    ensures { refused_by result ≡ word_refusal session (waiting.now ++ children.now) }
{
    if bad_pools(session, waiting, children) {
        return Err(Refusal::Values);
    }
    if bad_parents(session, waiting, children) {
        return Err(Refusal::Parents);
    }
    Ok(())
}
