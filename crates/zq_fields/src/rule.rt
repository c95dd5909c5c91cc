//! The rule of a heap's scores, as a byte.

ghost use Rattle.std.specs.Prelude.{◌≡◌, ◌∷◌, IfOk};
ghost use Rattle.zq_dots.specs.Rule.{rule_of};
ghost use Rattle.zq_fields.specs.Reading as read;
ghost use Rattle.zq_fields.specs.Spelling as spell;

use crate::fault::PartFault;
use crate::range::read_byte_in;
use zq_dots::Rule;

/// Takes a rule: 0 is High and 1 is Low.
#[tactic(auto, unfolding(crate::specs::Reading::rule_at))]
pub fn read_rule(whole: usize, bytes: &mut &[u8]) -> Result<Rule, PartFault>
    ensures exact { read.Gives (λ x. (rule_of x, bytes.new.now)) result
        (read.rule_at whole bytes.old.now) }
    ensures found { IfOk result (λ x. bytes.old.now ≡ spell.rule_byte (rule_of x) ∷ bytes.new.now) }
{
    let byte = read_byte_in(whole, bytes, 0, 2)?;
    if byte == 0 {
        Ok(Rule::High)
    } else {
        Ok(Rule::Low)
    }
}

/// The byte of a rule.
pub fn rule_byte(rule: Rule) -> u8
    ensures { result ≡ spell.rule_byte (rule_of rule) }
{
    match rule {
        Rule::High => 0,
        Rule::Low => 1,
    }
}
