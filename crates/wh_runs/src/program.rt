// Commands, as something that laws are stated over.
ghost use Rattle.wh_runs.specs.Program.{Program, IsSound};

/// A program's commands, over a format of the two files.
pub trait Commands {
    ghost program: { Program };

    /// What the changes write means what the changes make, and what the commands plan may be written.
    ghost sound: { IsSound program };
}
