//! The OPT record of a message.
use dns_read::Message;
use std::alloc::Global;
use std::io;

/// The line of the OPT record that `Message::opt` returns for a message of these digits. Empty if
/// it returns none.
pub(crate) fn opt_line(alloc: Global, digits: &[u8]) -> io::Result<String> {
    let octets = hex::decode(alloc, digits).unwrap_or(Vec::new(alloc));
    match Message::from_octets(octets) {
        Ok(message) => printed_opt(alloc, &message),
        Err(_) => Ok(String::new(alloc)),
    }
}

/// The line of the OPT record of a message.
fn printed_opt(alloc: Global, message: &Message<Vec<u8>>) -> io::Result<String> {
    let Some(opt) = message.opt() else {
        return Ok(String::new(alloc));
    };
    let data = opt.opt().data();
    let space = if data.is_empty() { "" } else { " " };
    let digits = hex::encode(alloc, data)?;
    Ok(format!(in alloc;
        "additional . {} CLASS{} OPT \\# {}{space}{digits}",
        opt.as_record().ttl().as_secs(),
        opt.udp_payload_size(),
        data.len()
    )?)
}
