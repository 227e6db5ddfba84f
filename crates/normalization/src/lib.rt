// Normalisation (document 01, "Association"; Rust: sampler/nsga3.rs), over the flat rows of the plans that shape the scale: the value of the p-th of them at objective j is
// entry p * m + j.
// The layer's calls are `update_ideal_point`, `find_intercepts` and `normalize_objectives`; the other functions are their parts.

#![tactic(auto)]

ghost use Rattle.std.specs.Prelude.{◌≡◌, ◌+◌, ◌*◌, ◌<◌, ◌≤◌, length};
ghost use Rattle.std.proofs.lemmas.List.Edits.{sets};
ghost use Rattle.model.specs.Lists.{list_below, over};
ghost use Rattle.model.specs.Association.{intercept_from, Request};
ghost use Rattle.list_laws.specs.Rows.{flat_rows};
ghost use Rattle.association_laws.specs.Flat.{least_below, greatest_below, least_at, intercept_at, normal_at};
ghost use Rattle.association_laws.specs.Measurable.{Measurable};
ghost use Rattle.association_laws.specs.Request.{ShapersIn, IdealIn, InterceptsIn, InScale};

// The smaller of `start` and the least value of objective j; `start` stands where they are equal.
fn least_of(rows: &[f64], n: usize, m: usize, j: usize, start: f64) -> f64
    requires { (n * m ≤ length rows.now) × (j < m) }
    ensures { result ≡ least_below start rows.now n m j }
{
    let mut least = start;
    for p in 0..n {
        let v = rows[p * m + j];
        if v < least {
            least = v;
        }
    }
    least
}

// Each objective's ideal becomes the smaller of itself and the least of the rows.
pub fn update_ideal_point(rows: &[f64], n: usize, m: usize, ideal: &mut [f64])
    requires { (n * m ≤ length rows.now) × (m ≤ length ideal.old) }
    ensures { ideal.new ≡ over (list_below (least_at rows.now n m ideal.old) m) ideal.old }
{
    for j in 0..m {
        ideal[j] = least_of(rows, n, m, j, ideal[j]);
    }
}

// The greatest value of objective j.
fn greatest_of(rows: &[f64], n: usize, m: usize, j: usize) -> f64
    requires { (n * m ≤ length rows.now) × (j < m) }
    ensures { result ≡ greatest_below rows.now n m j }
{
    let mut best = -1.0 / 0.0;
    for p in 0..n {
        let v = rows[p * m + j];
        if best < v {
            best = v;
        }
    }
    best
}

// A span that is too small to divide by becomes 1.0.
fn intercept(span: f64) -> f64
    ensures { result ≡ intercept_from span }
{
    if span > 1e-10 { span } else { 1.0 }
}

// Each objective's intercept: from the ideal to the greatest value.
pub fn find_intercepts(rows: &[f64], n: usize, m: usize, ideal: &[f64], intercepts: &mut [f64])
    requires { (n * m ≤ length rows.now) × (m ≤ length ideal.now) × (m ≤ length intercepts.old) }
    ensures { intercepts.new
        ≡ over (list_below (intercept_at rows.now n m ideal.now) m) intercepts.old }
{
    for j in 0..m {
        intercepts[j] = intercept(greatest_of(rows, n, m, j) - ideal[j]);
    }
}

// Plan p's normalised row, at its place.
fn normalize_row(
    rows: &[f64],
    p: usize,
    m: usize,
    ideal: &[f64],
    intercepts: &[f64],
    normalized: &mut [f64],
)
    requires { (p * m + m ≤ length rows.now) × (m ≤ length ideal.now) × (m ≤ length intercepts.now) × (p * m + m ≤ length normalized.old) }
    ensures { normalized.new
        ≡ sets normalized.old (p * m) (list_below (normal_at rows.now m ideal.now intercepts.now p) m) }
{
    let at = p * m;
    for j in 0..m {
        normalized[at + j] = (rows[at + j] - ideal[j]) / intercepts[j];
    }
}

// Each value becomes (value - ideal) / intercept; within 0..1 in edition 1 and 0..2^100 in edition 2, for a pool that refusal 8 lets pass and its own ideal and
// intercepts.
pub fn normalize_objectives(
    rows: &[f64],
    n: usize,
    m: usize,
    ideal: &[f64],
    intercepts: &[f64],
    normalized: &mut [f64],
)
    requires { (n * m ≤ length rows.now) × (m ≤ length ideal.now) × (m ≤ length intercepts.now) × (n * m ≤ length normalized.old) }
    ensures normalized_after { normalized.new
        ≡ over (flat_rows (normal_at rows.now m ideal.now intercepts.now) n m) normalized.old }
    ensures in_scale { (r : Request) → Measurable r → ShapersIn r rows.now n m → IdealIn r ideal.now m
        → InterceptsIn r intercepts.now m → InScale r.edition normalized.new n m }
{
    for p in 0..n {
        normalize_row(rows, p, m, ideal, intercepts, normalized);
    }
}
