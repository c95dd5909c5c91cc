//! What settings and refusals mean, without regard to the order in which keys are read.
ghost use Rattle.zq_settings.specs.Breaks.{EachRefusalIsOfABrokenRule};
ghost use Rattle.zq_settings.specs.Rules.{SettingsAreOfTheTable};
ghost use Rattle.zq_settings.specs.SiteBreaks.{EachRefusalOfASiteIsOfABrokenRule};
ghost use Rattle.zq_settings.specs.SiteRules.{SiteSettingsAreOfTheTable};

/// A table has settings exactly where it has no other key and each of its values is one that its
/// key takes. They are its values, and the defaults where keys are missing.
pub fn settings_are_of_the_table()
    ensures { SettingsAreOfTheTable }
{}

/// The rule that a table is refused for is one that it breaks.
pub fn each_refusal_is_of_a_broken_rule()
    ensures { EachRefusalIsOfABrokenRule }
{}

/// The same of the settings of one site. The tables of its peers have no other keys either.
pub fn site_settings_are_of_the_table()
    ensures { SiteSettingsAreOfTheTable }
{}

/// The rule that a table is refused for as the settings of one site is one that it breaks.
pub fn each_refusal_of_a_site_is_of_a_broken_rule()
    ensures { EachRefusalOfASiteIsOfABrokenRule }
{}
