//! RDATA that is printed reads back. The function does nothing: its contract is a theorem.
ghost use Rattle.dnsm_zone.specs.Laws.{DataTextsAreAccepted, DataTextsAreRead};

use fields_records::laws::{printed_data_reads_back, words_represent_one};

/// If `data_from_text` reads what `dnsm_data_text` writes of well-formed RDATA, it returns the RDATA
/// uncompressed, and `BadText` never.
pub fn data_texts_read_back()
    ensures read { DataTextsAreRead }
    ensures accepted { DataTextsAreAccepted }
{
    printed_data_reads_back();
    words_represent_one();
}
