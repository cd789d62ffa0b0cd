// Record files as the program's nets.
use crate::stop::Stop;
use crews::Call;
use records::{FileNet, MOST_BYTES, check};
use std::alloc::AllocError;
use std::io::Read;
use std::{fs, io};

// The bytes of a file, as far as it is judged by them. Standard error tells where it cannot be read.
pub(crate) fn read_file(rt: &HostRuntime, path: &str) -> Result<Vec<u8>, Stop> {
    match front_of(rt, path) {
        Ok(bytes) => Ok(bytes),
        Err(error) => {
            eprintln!(rt; "{path}: {error}")?;
            Err(Stop::Told)
        }
    }
}

fn front_of(rt: &HostRuntime, path: &str) -> io::Result<Vec<u8>> {
    let mut bytes = Vec::new(rt.alloc());
    let file = fs::open(rt, path)?;
    file.take(MOST_BYTES as u64).read_to_end(&mut bytes)?;
    Ok(bytes)
}

// The net of a file, if the file check admits its bytes.
pub(crate) fn file_net(bytes: &[u8]) -> Result<FileNet<'_>, Stop> {
    check(bytes).map_err(Stop::Refused)?;
    Ok(FileNet::new(bytes))
}

// Adds a put call for each token record of the file, with its places moved up by `shift`.
pub(crate) fn add_tokens(
    net: &FileNet<'_>,
    shift: usize,
    calls: &mut Vec<Call>,
) -> Result<(), AllocError> {
    let records = (0..net.records()).filter_map(|k| net.token_record(k));
    calls.extend(records.map(|tokens| Call::Put {
        side: tokens.side,
        place: tokens.place.saturating_add(shift),
        count: tokens.count,
    }))
}
