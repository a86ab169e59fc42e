// The direction of rounding: a lower end is rounded down, an upper end up.
ghost use Rattle.std.specs.Prelude.{◌≡◌};
ghost use Rattle.rounding.specs.Ends.{way, upward};

#[derive(Clone, Copy)]
pub enum Direction {
    Down,
    Up,
}

// Whether a direction is up.
pub fn is_up(direction: Direction) -> bool
    ensures { result ≡ upward (way direction) }
{
    match direction {
        Direction::Down => false,
        Direction::Up => true,
    }
}
