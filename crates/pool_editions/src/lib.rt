// The plans of a pool file of either edition (document 01, "Pool file"; document 02, M-111), each laid out in its block of words.

#![tactic(auto)]

ghost use Rattle.std.specs.Prelude.{◌≡◌, true, ◌+◌, ◌*◌, ◌<◌, ◌≤◌, length};
ghost use Rattle.model.specs.Plan.{plan_words};
ghost use Rattle.model.specs.declared.Edition.TheVariants.{First};
ghost use Rattle.model.specs.Edition.{most_plans};
ghost use Rattle.pool_editions.specs.Editions.{EntryIs, PlansIs};

use model::{MAX_FIRST_POOL, PLAN_WORDS};
use pool_number::read_number;
use pool_plans::read_plan;
use pool_settings::read_settings;

// Reads a plan of the second edition: its rows between its number and its settings, both of which are passed over.
fn read_numbered(file: &[u8], at: usize, m: usize, pool: &mut [u64], base: usize) -> Option<usize>
    requires { base + plan_words ≤ length pool.old }
    ensures { EntryIs true file.now at m base pool.old pool.new result }
{
    let number = read_number(file, at)?;
    let p = read_plan(file, number.next, m, pool, base)?;
    let count = read_number(file, p)?;
    read_settings(file, count.next, count.number as usize)
}

// Reads a plan of m values into the block of words at base. The place after it, or None where bytes break the form or end early.
fn read_entry(
    file: &[u8],
    at: usize,
    m: usize,
    second: bool,
    pool: &mut [u64],
    base: usize,
) -> Option<usize>
    requires { base + plan_words ≤ length pool.old }
    ensures { EntryIs second file.now at m base pool.old pool.new result }
{
    if second {
        read_numbered(file, at, m, pool, base)
    } else {
        read_plan(file, at, m, pool, base)
    }
}

// Where plan i is stored: in its block, and past a pool's last one anywhere, since such a pool is refused.
fn block_of(i: usize) -> usize
    ensures { (result + plan_words ≤ most_plans First * plan_words) × (i < most_plans First → result ≡ i * plan_words) }
{
    if i < MAX_FIRST_POOL {
        i * PLAN_WORDS
    } else {
        0
    }
}

// Reads n plans of m values, each into its block. A count that is larger than the bytes left ends at the first plan that is not there.
pub fn read_plans(
    file: &[u8],
    at: usize,
    m: usize,
    n: usize,
    second: bool,
    pool: &mut [u64],
) -> Option<usize>
    requires { most_plans First * plan_words ≤ length pool.old }
    ensures { PlansIs second file.now at m n pool.new result }
{
    let mut p = at;
    for i in 0..n {
        p = read_entry(file, p, m, second, pool, block_of(i))?;
    }
    Some(p)
}
