ghost use Rattle.clr_net.specs.Division.{AreClasses, class_claims, share};
ghost use Rattle.clr_net.specs.declared.TheConstants.{MAX_CLASS};
ghost use Rattle.clr_net.specs.declared.rule.RuleKind.TheVariants as kind;
ghost use Rattle.rule_class.specs.ByOrder.{AreUpTo, fill};
ghost use Rattle.rule_class.specs.ClassSet.{IsClassSet};
ghost use Rattle.std.specs.List.{fold};
ghost use Rattle.std.specs.Prelude.{◌≡◌, ◌-◌, ◌≤◌, length, max, sum};

/// Divides an estate by the rule `order`: pays the debts class by class and one after another, each
/// up to its claim, as long as there are units left.
///
/// The answer is that of `share` by that rule. The debts are gone over once for each class.
pub fn share_in_order(claims: &[u64], classes: &[u8], estate: u64, into: &mut [u64])
    requires a_class_each { length claims.now ≡ length classes.now }
    requires a_place_each { length into.old ≡ length claims.now }
    requires classed { AreClasses classes.now 1 MAX_CLASS }
    ensures { into.new ≡ share kind.Order claims.now classes.now estate }
{
    let mut left = estate;
    for class in 1..last_class(classes) + 1 {
        left = fill_class(claims, classes, class, left, into);
    }
}

// Pays the debts of one class one after another, and answers what is left.
fn fill_class(claims: &[u64], classes: &[u8], class: u8, estate: u64, into: &mut [u64]) -> u64
    requires a_class_each { length claims.now ≡ length classes.now }
    requires a_place_each { length into.old ≡ length claims.now }
    requires positive { 1 ≤ class }
    ensures filled { IsClassSet class classes.now
        (fill (class_claims class claims.now classes.now) estate) into.old into.new }
    ensures left { result ≡ estate - sum (class_claims class claims.now classes.now) }
{
    let mut left = estate;
    for (place, claim) in claims.iter().enumerate() {
        if classes[place] == class {
            let award = left.min(*claim);
            into[place] = award;
            left -= award;
        }
    }
    left
}

/// The greatest of the classes of a bank's debts, and 1 where there is none.
#[tactic(auto, using(std::proofs::lemmas::List::Sums::fold_more))]
pub fn last_class(classes: &[u8]) -> u8
    requires { AreClasses classes.now 1 MAX_CLASS }
    ensures greatest { result ≡ fold max 1 classes.now }
    ensures last { AreUpTo result classes.now }
    ensures limit { result ≤ MAX_CLASS }
{
    let mut last = 1;
    for class in classes {
        last = last.max(*class);
    }
    last
}
