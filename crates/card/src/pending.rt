// A descriptor of a script that waits for its phase lines, and the line that it is for.
use phase_lines::Waiting;
use script::Target;

// The line and how the descriptor is given to it, and the descriptor that waits.
#[derive(Drop)]
pub struct Pending {
    pub target: Target,
    pub waiting: Waiting,
}
