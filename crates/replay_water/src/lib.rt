// The answers to the oracle's lines of water priced by band, by its C name. Litres and bands are lent as they stand in the line.

#![tactic(auto)]

use replay::Line;

// How many places a kept list has here, and how many costs there is room for.
const PLACES: usize = 1025;

// 100. The answer to an input line; none for a case passed over. Room is lent for as many costs as the line says.
pub fn answer(input: &Line, out: &mut Line) -> Option<()> {
    let mut line = input.reader();
    line.skip(1);
    let room = line.count_to(PLACES)?;
    let k = line.count_to(PLACES)?;
    let mut kept = [0usize; PLACES];
    for place in &mut kept[..k] {
        *place = line.count();
    }
    let n_litres = line.count_to(4096)?;
    let litres = line.words(n_litres)?;
    let n_bands = line.count_to(128)?;
    let bands = line.words(n_bands)?;
    line.end()?;
    let mut costs = [0u64; PLACES];
    let mut total: u64 = 0;
    let code = locustdomino::locustdomino_price_water(
        litres,
        bands,
        &kept[..k],
        &mut costs[..room],
        &mut total,
    );
    out.put(code);
    if code == 0 {
        for &cost in &costs[..k] {
            out.put(cost);
        }
        out.put(total);
    }
    Some(())
}
