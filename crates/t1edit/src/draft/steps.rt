//! The steps by which a draft takes its place. Each makes a value that only it can make and that
//! the next one asks for.
use std::fs::{self, File, Permissions};
use std::io;
use std::os::unix::fs::PermissionsExt;

/// That a file has the permissions that it is to have.
#[derive(Drop)]
pub struct Allowed {
    seal: (),
}

/// That such a file is on the disk.
#[derive(Drop)]
pub struct Settled {
    seal: (),
}

/// That a draft which was settled has taken its place.
#[derive(Drop)]
pub struct Stood {
    seal: (),
}

/// Gives a file these permissions.
pub fn allow(file: &File, mode: u32) -> io::Result<Allowed> {
    file.set_permissions(Permissions::from_mode(mode))?;
    Ok(Allowed { seal: () })
}

/// Puts what was written to a file on the disk, with its permissions.
pub fn settle(file: &File, _allowed: Allowed) -> io::Result<Settled> {
    file.sync_all()?;
    Ok(Settled { seal: () })
}

/// Puts a draft into its place.
pub fn stand(rt: &HostRuntime, draft: &str, place: &str, _settled: Settled) -> io::Result<Stood> {
    fs::rename(rt, draft, place)?;
    Ok(Stood { seal: () })
}
