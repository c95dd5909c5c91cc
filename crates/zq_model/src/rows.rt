//! An image as a vector and rows.

ghost use Rattle.std.specs.Prelude.{List, ℕ, ◌↔◌, ◌≡◌};
ghost use Rattle.zq_model.specs.Entry.{Addition};
ghost use Rattle.zq_model.specs.Image.{Image, image_after, image_of, join};
ghost use Rattle.zq_model.specs.Joining.{HasAddition};
ghost use Rattle.zq_model.specs.Operation.{Operation};
ghost use Rattle.zq_model.specs.Rows.{AreEntries, AreRows, Row, image_of_rows, rows_of};
ghost use Rattle.zq_model.specs.Sets.{IsIn};

/// The rows of an image have its additions and no others, by key and by member and in each row by
/// site. With its vector they give the image back, and an image of rows gives its rows back.
pub fn listing()
    ensures rows { (a : Image) → AreEntries a.members → AreRows (rows_of a) }
    ensures entries { (vector : List ℕ) (rows : List Row) → AreRows rows →
        AreEntries (image_of_rows vector rows).members }
    ensures back { (a : Image) → AreEntries a.members → image_of_rows a.vector (rows_of a) ≡ a }
    ensures forth { (vector : List ℕ) (rows : List Row) → AreRows rows →
        rows_of (image_of_rows vector rows) ≡ rows }
    ensures additions { (a : Image) (k m : List ℕ) (s : ℕ) (x : Addition) → AreEntries a.members →
        HasAddition a k m s x
        ↔ ((row : Row) × IsIn row (rows_of a) × (row.key ≡ k) × (row.member ≡ m)
        × IsIn (s, x) row.additions) }
{}

/// Each entry in the image of a set, in a join and after a step has a place for each site, and an
/// addition.
pub fn filling()
    ensures of_set { (S : List Operation) (heap : ℕ) → AreEntries (image_of S heap).members }
    ensures of_join { (a b : Image) → AreEntries (join a b).members }
    ensures of_step { (o : Operation) (a : Image) → AreEntries a.members →
        AreEntries (image_after o a).members }
{}
