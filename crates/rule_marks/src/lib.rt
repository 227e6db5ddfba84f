// The rules of a kept list's places as the list of rules holds them (document 02, M-108).

#![tactic(auto)]

ghost use Rattle.std.specs.Prelude.{◌≡◌};
ghost use Rattle.model.specs.Kept.{mark_of, rule_of};

use model::Rule;

// A rule's mark.
pub fn mark(rule: Rule) -> u8
    ensures { result ≡ mark_of rule }
{
    match rule {
        Rule::WholeFront => 0,
        Rule::Nearest => 1,
        Rule::Drawn => 2,
        Rule::Padding => 3,
    }
}

// The rule of a pick, by the niche count of its line before the pick.
pub fn rule_of(count: usize) -> Rule
    ensures { result ≡ rule_of count }
{
    if count == 0 {
        Rule::Nearest
    } else {
        Rule::Drawn
    }
}
