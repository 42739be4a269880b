// The claims of one class next to one another, so that a look at a level goes over them alone.
ghost use Rattle.clr_net.specs.Division.{class_claims};
ghost use Rattle.rule_level.specs.Gathered.{AddUpAlike};
ghost use Rattle.rule_unit.specs.declared.TheConstants.{MAX_CLAIM};
ghost use Rattle.std.specs.Prelude.{◌≡◌, ◌≤◌, All, length, take};

// Writes the claims of the debts of one class over the first places of `into`, in file order.
// Answers how many they are.
pub fn gather(claims: &[u64], classes: &[u8], class: u8, into: &mut [u64]) -> usize
    requires a_class_each { length claims.now ≡ length classes.now }
    requires a_place_each { length into.old ≡ length claims.now }
    requires limit { All (λ c. c ≤ MAX_CLAIM) claims.now }
    requires first { 1 ≤ class }
    ensures places { result ≤ length into.new }
    ensures limit { All (λ c. c ≤ MAX_CLAIM) (take result into.new) }
    ensures claims { AddUpAlike (take result into.new) (class_claims class claims.now classes.now) }
{
    let mut many = 0;
    for debt in 0..claims.len() {
        if classes[debt] == class {
            into[many] = claims[debt];
            many += 1;
        }
    }
    many
}
