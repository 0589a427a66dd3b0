ghost use Rattle.std.specs.Prelude.{◌≡◌};
ghost use Rattle.plant_record.specs.Versions.{version_number};

/// By which rules a plant's text is read, and its boxes are made.
#[derive(Clone, Copy, PartialEq, Eq)]
pub enum PlantVersion {
    /// No equation has a table of points. A box is the growth bound round the centre's step.
    One,
    /// A box is also cut by what the equations can give over the cell.
    Two,
}

impl PlantVersion {
    /// The number by which a text names the version.
    pub fn number(self) -> u32
        ensures { result ≡ version_number self }
    {
        match self {
            PlantVersion::One => 1,
            PlantVersion::Two => 2,
        }
    }
}
