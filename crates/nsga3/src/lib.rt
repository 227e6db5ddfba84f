// Selection (Rust: nsga3_select of sampler/nsga3.rs; document 01, "Kept list"). `nsga3_select` is the public call; the other functions are its steps.

#![tactic(auto)]

ghost use Rattle.std.specs.Prelude.{◌≡◌, true, length};
ghost use Rattle.model.specs.Kept.{selected_split, selected};
ghost use Rattle.model.specs.Calls.{word_request, lent, room_of, select_exit, select_accepted, Selects};
ghost use Rattle.nsga3_laws.specs.Admitted.{Admitted};
ghost use Rattle.nsga3.specs.Handed.{SortedPool, Hands};

use front_cut::Cut;
use model::{Edition, MAX_POOL, MAX_ROW_VALUES, MAX_TABLE_VALUES, Rng, Selection};

// The kept list where a front is split, with its rules: the whole fronts, then plans that niching picks from the split one. The ideal moves, and every plan that shapes the scale gets a line.
fn select_split(
    edition: Edition,
    pool: &[u64],
    directions: &[u8],
    divisions: usize,
    size: usize,
    rng: Rng,
    rows: &[f64],
    order: &[usize],
    cut: Cut,
    ideal: &mut [f64],
    kept: &mut [usize],
    rules: &mut [u8],
    lines: &mut [usize],
) -> Rng
    requires sorted_pool { SortedPool (word_request edition pool.now directions.now divisions size rng ideal.old)
        (length kept.old) (length rules.old) (length lines.old) rows.now order.now cut }
    requires split_value { cut.split ≡ true }
    ensures { Hands (selected_split (word_request edition pool.now directions.now divisions size rng ideal.old))
        ideal.new kept.old kept.new rules.old rules.new lines.old lines.new result.s }
{
    let n = plans::plan_count(pool);
    let m = directions.len();
    let whole = cut.whole;
    let end = cut.end;
    let mut marks: [bool; MAX_POOL] = [false; MAX_POOL];
    shapers::mark_shapers(edition, pool, n, order, whole, end, &mut marks);
    let mut table: [f64; MAX_TABLE_VALUES] = [0.0; MAX_TABLE_VALUES];
    let n_lines = das_dennis::das_dennis(m, divisions, &mut table);
    let mut distances: [f64; MAX_POOL] = [0.0; MAX_POOL];
    shaped_association::associate_marked(
        edition,
        &marks,
        rows,
        n,
        m,
        &table,
        n_lines,
        ideal,
        lines,
        &mut distances,
    );
    selection_lists::list_whole(order, whole, kept, rules);
    niching::niching_select(
        rng,
        order,
        whole,
        end,
        lines,
        &distances,
        n_lines,
        size - whole,
        &mut kept[whole..],
        &mut rules[whole..],
    )
}

// The kept list of a sorted pool, with its rules, the ideal and the lines, by whether a front is split.
fn fill_kept(
    edition: Edition,
    pool: &[u64],
    directions: &[u8],
    divisions: usize,
    size: usize,
    rng: Rng,
    rows: &[f64],
    order: &[usize],
    cut: Cut,
    ideal: &mut [f64],
    kept: &mut [usize],
    rules: &mut [u8],
    lines: &mut [usize],
) -> Rng
    requires { SortedPool (word_request edition pool.now directions.now divisions size rng ideal.old)
        (length kept.old) (length rules.old) (length lines.old) rows.now order.now cut }
    ensures { Hands (selected (word_request edition pool.now directions.now divisions size rng ideal.old))
        ideal.new kept.old kept.new rules.old rules.new lines.old lines.new result.s }
{
    let split = cut.split;
    if split {
        return select_split(
            edition, pool, directions, divisions, size, rng, rows, order, cut, ideal, kept, rules,
            lines,
        );
    }
    let n = plans::plan_count(pool);
    let whole = cut.whole;
    selection_lists::select_whole(rng, order, n, whole, size, kept, rules, lines)
}

// A selection that meets no refusal.
fn select(
    edition: Edition,
    pool: &[u64],
    directions: &[u8],
    divisions: usize,
    size: usize,
    rng: Rng,
    ideal: &mut [f64],
    kept: &mut [usize],
    rules: &mut [u8],
    fronts: &mut [usize],
    lines: &mut [usize],
) -> Selection
    requires { Admitted (word_request edition pool.now directions.now divisions size rng ideal.old)
        (room_of (lent kept.old rules.old fronts.old lines.old)) }
    ensures { select_exit result ideal.new (lent kept.new rules.new fronts.new lines.new)
        ≡ select_accepted (word_request edition pool.now directions.now divisions size rng ideal.old)
        (lent kept.old rules.old fronts.old lines.old) }
{
    let n = plans::plan_count(pool);
    let mut rows: [f64; MAX_ROW_VALUES] = [0.0; MAX_ROW_VALUES];
    plan_rows::fill_rows(pool, directions, n, &mut rows);
    let mut order: [usize; MAX_POOL] = [0; MAX_POOL];
    let cut = pool_sort::sort_pool(pool, directions, size, &rows, &mut order, fronts);
    let rng = fill_kept(
        edition, pool, directions, divisions, size, rng, &rows, &order, cut, ideal, kept, rules,
        lines,
    );
    Selection {
        outcome: Ok(size),
        rng,
    }
}

// The kept list of a pool of plans, and what put each plan on it (document 02, M-108): document 01's selection, or the number of the refusal that it meets, with nothing written and no word drawn.
pub fn nsga3_select(
    edition: Edition,
    pool: &[u64],
    directions: &[u8],
    divisions: usize,
    size: usize,
    rng: Rng,
    ideal: &mut [f64],
    kept: &mut [usize],
    rules: &mut [u8],
    fronts: &mut [usize],
    lines: &mut [usize],
) -> Selection
    ensures { Selects (word_request edition pool.now directions.now divisions size rng ideal.old)
        (lent kept.old rules.old fronts.old lines.old)
        (select_exit result ideal.new (lent kept.new rules.new fronts.new lines.new)) }
{
    let check = refusals::refusal(
        edition,
        pool,
        directions,
        divisions,
        size,
        rng,
        ideal,
        kept.len(),
        rules.len(),
        fronts.len(),
        lines.len(),
    );
    match check {
        Err(refusal) => Selection {
            outcome: Err(refusal),
            rng,
        },
        Ok(()) => select(
            edition, pool, directions, divisions, size, rng, ideal, kept, rules, fronts, lines,
        ),
    }
}
