// What has a command.
ghost use Rattle.std.specs.Prelude.{◌≡◌};

use ground_types::Command;
use stream_read::Placed;

/// What has a command: the command itself, or one with its place in a script.
pub trait Commanded {
    ghost use Rattle.ground_types.specs.declared.entries.Command.{Command};

    ghost command_of: { Self → Command };

    /// The command.
    fn command(&self) -> Command
        ensures { result ≡ command_of self.now };
}

impl Commanded for Placed {
    ghost command_of = { λ placed. placed.command };

    fn command(&self) -> Command {
        self.command
    }
}

impl Commanded for Command {
    ghost command_of = { λ command. command };

    fn command(&self) -> Command {
        *self
    }
}
