//! Laws on divisions, at rows of two and three claims.
ghost use Rattle.clr_net.specs.Division.{award, next_of};
ghost use Rattle.clr_net.specs.declared.rule.RuleKind.TheVariants as kind;
ghost use Rattle.std.specs.Prelude.{◌≡◌, ◌∷◌, []};

// Units awarded in turn are those of their sum.
pub fn awards_in_turn()
    ensures { 3 ∷ 2 ∷ 0 ∷ [] ≡ award kind.Webster (6 ∷ 3 ∷ 1 ∷ []) 5 }
{
    rule_level::laws::awards_in_turn_are_those_of_their_sum();
}

// A claim that is met makes no difference to who is next.
pub fn met_place_left_out()
    ensures { next_of kind.Equal (1 ∷ 5 ∷ []) (1 ∷ 2 ∷ [])
        ≡ next_of kind.Equal (7 ∷ 5 ∷ []) (7 ∷ 2 ∷ []) }
{
    clr_net::laws::met_place_can_be_left_out();
}
