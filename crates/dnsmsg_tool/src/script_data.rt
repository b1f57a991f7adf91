//! The RDATA of the records of a script.
ghost use Rattle.dnsmsg_tool.specs.ScriptData.{script_rtype_of, script_parts_of};

use dns_data::{ComposeRecordData, RecordData, UnknownRecordData};
use dns_iana::Rtype;
use dns_lines::KnownData;
use dns_name::Name;
use dns_octets::AppendError;
use dns_wire::Composer;

/// The RDATA of a record of a script: its fields, or opaque octets for any type.
#[derive(Drop)]
pub(crate) enum ScriptData {
    Known(KnownData<Name<Vec<u8>>>),
    Opaque(UnknownRecordData<Vec<u8>>),
}

impl RecordData for ScriptData {
    ghost rtype_of = { script_rtype_of };

    ghost parts = { script_parts_of };

    fn rtype(&self) -> Rtype {
        match self {
            ScriptData::Known(data) => data.rtype(),
            ScriptData::Opaque(data) => data.rtype(),
        }
    }
}

impl ComposeRecordData for ScriptData {
    fn compose_rdata<T: Composer>(&self, target: &mut T) -> Result<(), AppendError> {
        match self {
            ScriptData::Known(data) => data.compose_rdata(target),
            ScriptData::Opaque(data) => data.compose_rdata(target),
        }
    }

    fn compose_canonical_rdata<T: Composer>(&self, target: &mut T) -> Result<(), AppendError> {
        match self {
            ScriptData::Known(data) => data.compose_canonical_rdata(target),
            ScriptData::Opaque(data) => data.compose_canonical_rdata(target),
        }
    }
}
