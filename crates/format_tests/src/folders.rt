//! Folders of the tests' own.
use std::os::unix::fs::PermissionsExt;
use std::test::Fail;
use std::{env, fs, process};

// A folder of a test's own, below the system's folder for temporary files.
pub fn above(rt: HostRuntime, test: &str) -> Result<String, Fail> {
    let process = process::id(rt.process());
    let folder = env::temp_dir(&rt)?;
    Ok(format!(in rt.alloc(); "{}/format_tests-{process}-{test}", folder.display())?)
}

// How many names a folder has, and whether one of them is that of a file under way.
pub fn names(rt: HostRuntime, folder: &str) -> Result<(u32, bool), Fail> {
    let mut count = 0u32;
    let mut has_temporary = false;
    for entry in fs::read_dir(&rt, folder)? {
        let entry = entry?;
        count = count.saturating_add(1);
        has_temporary |= entry.file_name().starts_with("xlogtemp");
    }
    Ok((count, has_temporary))
}

pub fn mode(rt: HostRuntime, path: &str) -> Result<u32, Fail> {
    Ok(fs::metadata(&rt, path)?.permissions().mode() & 0o777)
}
