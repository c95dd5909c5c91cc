//! Laws of what the sites of a drill hand to one another.

ghost use Rattle.zq_drill.specs.Gathered.{AllHaveAll};

/// Where each of the three sites was handed what each other one had, all have what one of them had
/// before.
pub fn all_have_all()
    ensures { AllHaveAll }
{}
