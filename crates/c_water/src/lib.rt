// `price_water`, in numbers and lists alone: what its C name does.

#![tactic(auto)]

ghost use Rattle.model.specs.Water.{bands_of};
ghost use Rattle.c_water.specs.Coded.{priced_as, PricesWords};

// The costs of a kept list go to the front of `costs`, and their total to `total`.
pub fn price_water_words(
    litres: &[u64],
    bands: &[u64],
    kept: &[usize],
    costs: &mut [u64],
    total: &mut u64,
) -> u64
    ensures { PricesWords litres.now (bands_of bands.now) kept.now costs.old total.old
        (priced_as result total.new costs.new) }
{
    let answer = water::price_water(litres, bands, kept, costs);
    *total = c_answers::value_or(answer, *total);
    c_answers::code(answer)
}
