// Numbers in the fields of a record: those that a field cannot hold.
ghost use Rattle.std.specs.Prelude.{◌≡◌, ◌≤◌};
ghost use Rattle.writer.specs.Fields.{fits, clamped};

// Whether a field whose highest number is `most` can hold z.
#[tactic(auto, unfolding(crate::specs::Fields::fits))]
pub fn field_fits(z: i64, most: u32) -> bool
    ensures { result ≡ fits most z }
{
    (0..=i64::from(most)).contains(&z)
}

// z where the field can hold it, else the highest number that it can.
#[tactic(auto, unfolding(crate::specs::Fields::clamped))]
pub fn clamp(z: i64, most: u32) -> u32
    ensures { (result ≡ clamped most z) × (result ≤ most) }
{
    u32::try_from(z).map_or(most, |n| n.min(most))
}
