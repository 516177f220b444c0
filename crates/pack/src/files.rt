// What the arguments ask for.
use anyhow::{Context, anyhow};
use std::env;

// The files to read and to write, and the stream's length in bits where it is given.
#[derive(Drop)]
pub(crate) struct Job {
    pub(crate) description: String,
    pub(crate) items: String,
    pub(crate) length: Option<u64>,
    pub(crate) stream: String,
}

// What the arguments name, or none where they ask for help.
pub(crate) fn named_job(rt: &HostRuntime) -> anyhow::Result<Option<Job>> {
    let mut args = env::args(rt)?;
    let _ = args.next();
    let Some(description) = args.next() else {
        return default_job(rt);
    };
    if description.as_str() == "--help" {
        return Ok(None);
    }
    let few = "a description, but no items, length and stream: see pack --help";
    let items = args.next().context(few)?;
    let length = args.next().context(few)?.as_str().parse::<u64>()?;
    let stream = args.next().context(few)?;
    if args.next().is_some() {
        return Err(anyhow!("more than four arguments: see pack --help"));
    }
    Ok(Some(Job {
        description,
        items,
        length: Some(length),
        stream,
    }))
}

// The files in the current folder.
fn default_job(rt: &HostRuntime) -> anyhow::Result<Option<Job>> {
    let heap = rt.alloc();
    Ok(Some(Job {
        description: String::from_str(heap, "description.sdt")?,
        items: String::from_str(heap, "items.txt")?,
        length: None,
        stream: String::from_str(heap, "stream.bin")?,
    }))
}
