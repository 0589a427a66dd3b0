//! The limits of plants, texts and runs: the greatest number that is allowed, unless it says otherwise.

/// Cells of a grid: the rows of a game take 12 MiB at most, and a board of one word a cell 8.
pub const CELLS_LIMIT: u64 = 1 << 20;

/// Pairs of a cell and an input vector: their boxes take 32 MiB at most.
pub const PAIRS_LIMIT: u64 = 1 << 22;

/// Edges of an abstraction: as source lists they take 128 MiB at most.
pub const EDGES_LIMIT: u64 = 1 << 25;

/// Pairs of a turn and a cell of a patrol: as many as pairs of an abstraction.
pub const TURNS_LIMIT: u64 = 1 << 22;

/// Input vectors of a plant: an input fits in 12 bits beside a rank.
pub const VECTORS_LIMIT: u32 = 4096;

/// States of a plant.
pub const STATES_LIMIT: usize = 6;

/// Input variables of a plant.
pub const INPUTS_LIMIT: usize = 3;

/// Noises of a plant.
pub const NOISES_LIMIT: usize = 6;

/// Variables of a plant: its states, input variables and noises.
pub const VARIABLES_LIMIT: usize = 15;

/// Values of an input variable.
pub const VALUES_LIMIT: usize = 64;

/// Targets of a plant, and obstacles.
pub const BOXES_LIMIT: usize = 64;

/// Nodes of an equation.
pub const NODES_LIMIT: u32 = 256;

/// Nodes of an equation one below another: each takes a frame of the stack where it is evaluated.
pub const DEPTH_LIMIT: u32 = 64;

/// Brackets of an equation that are open at once.
pub const BRACKETS_LIMIT: u32 = 64;

/// Points of a table of points.
pub const POINTS_LIMIT: usize = 32;

/// Bytes of a name.
pub const NAME_LIMIT: usize = 32;

/// One more than the greatest magnitude of a number in a text, which has 18 digits and fits in 64 bits.
pub const NUMBER_LIMIT: u64 = 1_000_000_000_000_000_000;

/// Bytes of a plant text.
pub const TEXT_LIMIT: usize = 65_536;

/// Bytes of a table text.
pub const TABLE_LIMIT: usize = 67_108_864;

/// Bytes of a live script.
pub const SCRIPT_LIMIT: usize = 67_108_864;

/// Tables of a live script.
pub const TABLES_LIMIT: u32 = 8;

/// Workers of a run, and readers of live tables.
pub const WORKERS_LIMIT: u64 = 64;

/// Samples of a trace.
pub const SAMPLES_LIMIT: u64 = 1_000_000;

/// The greatest number of a demo plant.
pub const DEMO_LIMIT: u64 = 500;
