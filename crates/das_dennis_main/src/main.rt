// Runs the published point counts and document 01's cases on the reference table.

#![tactic(auto)]

ghost use Rattle.std.specs.Prelude.{◌≤◌};

use model::MAX_TABLE_VALUES;

// The point count, and how many lines the table has.
fn counted(rt: &impl Print, m: usize, h: usize)
    requires { (1 ≤ m) × (m ≤ 8) }
{
    if divisions::bad_divisions(m, h) {
        let _ = println!(rt; "m {m} H {h}: refused 4");
        return;
    }
    let mut table = [0.0; MAX_TABLE_VALUES];
    let lines = das_dennis::das_dennis(m, h, &mut table);
    let count = divisions::point_count(m, h);
    let _ = println!(rt; "m {m} H {h}: {count}, lines {lines}");
}

// A coordinate of a table with two divisions; `?` for anything else.
fn mark(x: f64) -> u8 {
    if x == 0.0 {
        return b'0';
    }
    if x == 0.5 {
        return b'h';
    }
    if x == 1.0 {
        return b'1';
    }
    b'?'
}

// The entries of a table and two past it.
fn marks(rt: &impl Print, table: [f64; 20]) {
    let mut line = [b'\n'; 21];
    for i in 0..20 {
        line[i] = mark(table[i]);
    }
    let _ = rt.write_all(&line);
}

// The divisions and the population size of a session.
fn session(rt: &impl Print, m: usize, size: Option<usize>, divisions: Option<usize>)
    requires { (1 ≤ m) × (m ≤ 8) }
{
    if divisions::bad_session_divisions(m, size, divisions) {
        let _ = println!(rt; "session m {m}: refused 4");
        return;
    }
    let h = divisions::divisions_of(m, size, divisions);
    let plans = divisions::population_size(m, size, divisions);
    let _ = println!(rt; "session m {m}: H {h}, size {plans}");
}

// Deb and Jain 2014: 91, 210, and 120 and 36 for the two layers of eight objectives. Then the bounds of refusal 4.
fn counts(rt: &impl Print) {
    counted(rt, 3, 12);
    counted(rt, 5, 6);
    counted(rt, 8, 3);
    counted(rt, 8, 2);
    counted(rt, 3, 13);
    counted(rt, 2, 199);
    counted(rt, 8, 4);
    counted(rt, 1, 199);
    counted(rt, 3, 43);
    counted(rt, 3, 44);
    counted(rt, 8, 5);
    counted(rt, 8, 6);
    counted(rt, 2, 0);
    counted(rt, 2, 200);
}

// P1 and P2.
fn tables(rt: &impl Print) {
    let mut table = [2.0; 20];
    das_dennis::das_dennis(3, 2, &mut table);
    marks(rt, table);
    let mut single = [2.0; 20];
    das_dennis::das_dennis(1, 7, &mut single);
    marks(rt, single);
}

// P3 and P4.
fn automatic(rt: &impl Print) {
    let a = divisions::auto_divisions(2, 200);
    let b = divisions::auto_divisions(2, 201);
    let c = divisions::auto_divisions(3, 100);
    let _ = println!(rt; "automatic {a} {b} {c}");
}

fn main(rt: HostRuntime) {
    counts(&rt);
    tables(&rt);
    automatic(&rt);
    session(&rt, 3, None, None);
    session(&rt, 3, Some(0), None);
    session(&rt, 3, Some(990), None);
    session(&rt, 3, Some(991), None);
    session(&rt, 8, Some(792), None);
    session(&rt, 8, Some(793), None);
    session(&rt, 1, None, Some(7));
    session(&rt, 5, Some(50), Some(6));
    session(&rt, 5, None, Some(6));
    session(&rt, 5, None, Some(0));
}
