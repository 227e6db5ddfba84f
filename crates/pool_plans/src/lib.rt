// A plan's rows in a pool file (document 01, "Pool file"), laid out in the plan's block of words.

#![tactic(auto)]

ghost use Rattle.std.specs.Prelude.{◌≡◌, ◌+◌, ◌≤◌, length};
ghost use Rattle.model.specs.Plan.{plan_words};
ghost use Rattle.pool_plans.specs.Blocks.{WordsIs, counted, BlockIs};

use model::{
    CONSTRAINT_COUNT, CONSTRAINTS, MAX_CONSTRAINTS, MAX_OBJECTIVES, ROW_LENGTH, SETTING_COUNT,
    VALUES,
};
use pool_number::read_number;

// Reads n numbers; the first keep of them are stored from base on. The place after them, or None where bytes break the form or end early.
pub fn read_words(
    file: &[u8],
    at: usize,
    n: usize,
    keep: usize,
    pool: &mut [u64],
    base: usize,
) -> Option<usize>
    requires { base + keep ≤ length pool.old }
    ensures { WordsIs (λ v. v) file.now at n keep base pool.old pool.new result }
{
    let mut p = at;
    for i in 0..n {
        let word = read_number(file, p)?;
        if i < keep {
            pool[base + i] = word.number;
        }
        p = word.next;
    }
    Some(p)
}

// The words of a plan beside its values and constraints: its number, its row length and its two other counts.
#[tactic(auto, unfolding(crate::specs::Blocks::counted))]
fn put_counts(pool: &mut [u64], base: usize, m: u64, c: u64)
    requires { base + plan_words ≤ length pool.old }
    ensures { pool.new ≡ counted pool.old base m c }
{
    pool[base] = 0;
    pool[base + ROW_LENGTH] = m;
    pool[base + CONSTRAINT_COUNT] = c;
    pool[base + SETTING_COUNT] = 0;
}

// Reads the rows of a plan of m values into the block of words at base: its first 8 values and its first 16 constraints have room there.
// The place after them, or None where bytes break the form or end early.
pub fn read_plan(file: &[u8], at: usize, m: usize, pool: &mut [u64], base: usize) -> Option<usize>
    requires { base + plan_words ≤ length pool.old }
    ensures { BlockIs file.now at m base pool.old pool.new result }
{
    let p = read_words(file, at, m, MAX_OBJECTIVES, pool, base + VALUES)?;
    let count = read_number(file, p)?;
    let next = read_words(
        file,
        count.next,
        count.number as usize,
        MAX_CONSTRAINTS,
        pool,
        base + CONSTRAINTS,
    )?;
    put_counts(pool, base, m as u64, count.number);
    Some(next)
}
