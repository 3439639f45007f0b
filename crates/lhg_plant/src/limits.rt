// How large a plant may be.
ghost use Rattle.std.specs.Prelude.{◌≡◌};
ghost use Rattle.lhg_plant.specs.Limits.{most_name_bytes, most_variables, most_locations, most_switches, most_safe_lines, most_line_rows};

/// How many bytes a name may have.
pub const MOST_NAME_BYTES: usize = 32;

/// How many variables a plant may have; it has one or more.
pub const MOST_VARIABLES: usize = 8;

/// How many locations a plant may have; it has one or more.
pub const MOST_LOCATIONS: usize = 64;

/// How many switches a plant may have.
pub const MOST_SWITCHES: usize = 256;

/// How many safe lines a location may have.
pub const MOST_SAFE_LINES: usize = 64;

/// How many rows one line may give.
pub const MOST_LINE_ROWS: usize = 64;

/// The constants are the limits of the definitions.
pub fn law_limits()
    ensures name_bytes { MOST_NAME_BYTES ≡ most_name_bytes }
    ensures variables { MOST_VARIABLES ≡ most_variables }
    ensures locations { MOST_LOCATIONS ≡ most_locations }
    ensures switches { MOST_SWITCHES ≡ most_switches }
    ensures safe_lines { MOST_SAFE_LINES ≡ most_safe_lines }
    ensures line_rows { MOST_LINE_ROWS ≡ most_line_rows }
{}
