//! What the flags of ZADD let.

ghost use Rattle.std.specs.Prelude.{Option, is_some, not, true, ℤ, ◌||◌, ◌≡◌};
ghost use Rattle.zq_semantics.specs.Plan as plan;

use zq_words::Flags;

/// Whether the flags let a member that had this score, where it was there, have the new one.
pub fn is_let(flags: Flags, old: Option<i128>, new: &i128) -> bool
    ensures { result ≡ plan.lets flags old new.now }
{
    match old {
        None => !flags.xx,
        Some(old) => {
            let new = *new;
            !flags.nx && ((!flags.gt || old < new) && (!flags.lt || new < old))
        }
    }
}

/// Whether there are no flags. A member may then have any score, whether it was there or not, and
/// new members alone are counted.
pub fn are_none(flags: Flags) -> bool
    ensures none { result ≡ not (flags.nx || flags.xx || flags.gt || flags.lt || flags.ch) }
    ensures lets { result ≡ true → (old : Option ℤ) (new : ℤ) → plan.lets flags old new ≡ true }
    ensures counts { result ≡ true → (old : Option ℤ) (new : ℤ) →
        plan.counts flags old new ≡ not (is_some old) }
{
    !(flags.nx || flags.xx || flags.gt || flags.lt || flags.ch)
}

/// Whether ZADD counts it: a new member, and with CH a changed score.
pub fn is_counted(flags: Flags, old: Option<i128>, new: &i128) -> bool
    ensures { result ≡ plan.counts flags old new.now }
{
    match old {
        None => true,
        Some(old) => {
            let new = *new;
            flags.ch && (old < new || new < old)
        }
    }
}
