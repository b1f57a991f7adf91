//! The header of a stage, and its finished target.
ghost use Rattle.std.specs.Prelude.{◌≡◌};
ghost use Rattle.dns_code.specs.Header.{fields};
ghost use Rattle.dns_build.specs.State.{State};
ghost use Rattle.dns_script.specs.Script.{StageRepresents, built_of};

use crate::script::Stage;
use dns_code::Header;
use dns_wire::Composer;

impl<T: Composer> Stage<T> {
    /// The current header.
    pub fn header(&self) -> Header
        ensures { (s : State) → StageRepresents T.rule s self.now → fields result ≡ s.header }
    {
        match self {
            Stage::Builder(builder) => builder.header(),
            Stage::Question(builder) => builder.header(),
            Stage::Answer(builder) => builder.header(),
            Stage::Authority(builder) => builder.header(),
            Stage::Additional(builder) => builder.header(),
        }
    }

    /// Finishes the message, and returns the target that holds it.
    pub fn finish(self) -> T
        ensures { T.written result ≡ (built_of self).written }
    {
        match self {
            Stage::Builder(builder) => builder.finish(),
            Stage::Question(builder) => builder.finish(),
            Stage::Answer(builder) => builder.finish(),
            Stage::Authority(builder) => builder.finish(),
            Stage::Additional(builder) => builder.finish(),
        }
    }
}
