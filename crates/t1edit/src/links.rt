//! Where the links lead to that stand at a path.
use crate::identity::names_a_descriptor;
use crate::unopened::Unopened;
use std::fs;
use std::path::Path;

/// How many links are followed, as many as the system follows itself.
const LINKS: u32 = 40;

/// Where the links at a path lead to.
#[derive(Drop)]
pub enum End {
    /// The path of something that is no link.
    Place(String),
    /// A descriptor, of this process or another.
    Descriptor,
}

/// Where the links at a path lead to. A path that is no link is its own end, as it was given.
pub fn end_of(rt: &HostRuntime, path: &str) -> Result<End, Unopened> {
    let mut place = String::from_str(rt.alloc(), path)?;
    for _ in 0..LINKS {
        let there = fs::symlink_metadata(rt, &place)?;
        if !there.is_symlink() {
            return Ok(End::Place(place));
        }
        if names_a_descriptor(rt, &there) {
            return Ok(End::Descriptor);
        }
        place = target_of(rt, &place)?;
    }
    Err(Unopened::Refused)
}

/// The path that a link names: from the link's folder on, where it isn't from the root.
fn target_of(rt: &HostRuntime, link: &str) -> Result<String, Unopened> {
    let target = fs::read_link(rt, link)?;
    let folder = Path::new(link).parent().unwrap_or(Path::new(""));
    Ok(folder.join(rt.alloc(), &target)?.into_string())
}
