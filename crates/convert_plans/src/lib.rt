// Plans turned from one edition of the pool file to the other (document 02, M-111).

#![tactic(auto)]

ghost use Rattle.std.specs.Prelude.{◌≡◌, ◌&&◌, eqb};
ghost use Rattle.model.specs.PoolFile.{many, rows, numbered};
ghost use Rattle.model.specs.Convert.{plain_from};
ghost use Rattle.convert_rows.specs.Copied.{CopiedIs};
ghost use Rattle.convert_plans.specs.Turned.{numbered_as, numbered_all, plain_as, rows_of, rows_all, PlainIs};

use convert_rows::copy_rows;
use pool_form::put_word;
use pool_number::read_number;
use pool_settings::read_settings;

// ---- forwards

// A plan: its number, its rows, and no settings. The place after it, or None where bytes break the form or end early.
fn number_plan(
    file: &[u8],
    at: usize,
    m: usize,
    number: u64,
    out: &mut [u8],
    to: &mut usize,
) -> Option<usize>
    ensures { CopiedIs (rows m) (numbered_as number) file.now at out.old to.old out.new to.new result }
{
    *to = put_word(number, out, *to);
    let next = copy_rows(file, at, m, out, to)?;
    *to = put_word(0, out, *to);
    Some(next)
}

// n plans of m values, numbered from 0.
pub fn number_plans(
    file: &[u8],
    at: usize,
    m: usize,
    n: usize,
    out: &mut [u8],
    to: &mut usize,
) -> Option<usize>
    ensures { CopiedIs (many n (rows m)) numbered_all file.now at out.old to.old out.new to.new result }
{
    let mut p = at;
    for i in 0..n {
        p = number_plan(file, p, m, i as u64, out, to)?;
    }
    Some(p)
}

// ---- backwards

// The place after what was read, and whether the first edition can hold it.
#[derive(Clone, Copy)]
pub struct Plain {
    pub next: usize,
    pub held: bool,
}

// Plan i has its place as its number, and no settings.
fn is_plain(number: u64, i: usize, settings: u64) -> bool
    ensures { result ≡ (eqb number i && eqb settings 0) }
{
    number == i as u64 && settings == 0
}

// Plan i: its rows alone.
fn plain_plan(
    file: &[u8],
    at: usize,
    m: usize,
    i: usize,
    out: &mut [u8],
    to: &mut usize,
) -> Option<Plain>
    ensures { PlainIs (numbered m) rows_of (plain_as i) file.now at out.old to.old out.new to.new result }
{
    let plan = read_number(file, at)?;
    let p = copy_rows(file, plan.next, m, out, to)?;
    let settings = read_number(file, p)?;
    let next = read_settings(file, settings.next, settings.number as usize)?;
    let held = is_plain(plan.number, i, settings.number);
    Some(Plain { next, held })
}

// n plans of m values. The form is looked at to the end, also where the first edition cannot hold a plan.
pub fn plain_plans(
    file: &[u8],
    at: usize,
    m: usize,
    n: usize,
    out: &mut [u8],
    to: &mut usize,
) -> Option<Plain>
    ensures { PlainIs (many n (numbered m)) rows_all (plain_from 0) file.now at out.old to.old out.new to.new result }
{
    let mut p = at;
    let mut held = true;
    for i in 0..n {
        let plan = plain_plan(file, p, m, i, out, to)?;
        held &= plan.held;
        p = plan.next;
    }
    Some(Plain { next: p, held })
}
