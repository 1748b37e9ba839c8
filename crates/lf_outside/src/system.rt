ghost use Rattle.std.specs.Prelude.{None};

use crate::disk::Disk;
use std::fs::{self, File, OpenOptions, Permissions};
use std::io::{Result, Write};
use std::os::fd::{AsRawFd, IntoRawFd};
use std::os::unix::fs::PermissionsExt;

/// Where Linux shows the limits of a process, one a line.
const LIMITS: &str = "/proc/self/limits";

/// How the line of the limit on the length of files begins. Two limits follow, of which the first holds.
const SIZE_LIMIT: &str = "Max file size";

/// The device that takes all and gives nothing.
const NULL_DEVICE: &str = "/dev/null";

/// The greatest number of a standard stream: 0 to 2 are the input, the output and the error output.
const LAST_STREAM: i32 = 2;

// The number that a text begins with, or none at all.
fn first_number(text: &str) -> u64 {
    match text.split_whitespace().next() {
        Some(word) => match word.parse::<u64>() {
            Ok(number) => number,
            Err(_) => u64::MAX,
        },
        None => u64::MAX,
    }
}

/// The limit on the length of files that the lines of limits tell: the greatest number, where they tell none.
pub fn size_limit(limits: &str) -> u64 {
    for line in limits.lines() {
        if let Some(rest) = line.strip_prefix(SIZE_LIMIT) {
            return first_number(rest);
        }
    }
    u64::MAX
}

/// The files of the system. It tells nothing. Each call hands its arguments to one call of the library.
#[derive(Drop)]
pub struct SystemDisk {
    rt: HostRuntime,
}

impl SystemDisk {
    /// The files that the process sees.
    pub fn new(rt: HostRuntime) -> SystemDisk {
        SystemDisk { rt }
    }
}

impl Disk for SystemDisk {
    ghost history = { λ _. None };

    ghost stuck = { λ _. 0 };

    type Opened = File;

    type Written = File;

    fn open(&self, name: &str) -> Result<File> {
        File::open(&self.rt, name)
    }

    fn mode(&self, name: &str) -> Result<u32> {
        Ok(fs::metadata(&self.rt, name)?.permissions().mode())
    }

    fn limit(&self) -> u64 {
        match fs::read_to_string(&self.rt, LIMITS) {
            Ok(limits) => size_limit(limits.as_str()),
            Err(_) => u64::MAX,
        }
    }

    fn create(&mut self, name: &str) -> Result<File> {
        File::create_new(&self.rt, name)
    }

    fn write(&mut self, file: &mut File, _name: &str, piece: &[u8]) -> Result<usize> {
        file.write(piece)
    }

    fn set_mode(&mut self, file: &mut File, mode: u32) -> Result<()> {
        file.set_permissions(Permissions::from_mode(mode))
    }

    fn sync(&mut self, file: &mut File, _name: &str) -> Result<()> {
        file.sync_all()
    }

    fn rename(&mut self, from: &str, to: &str) -> Result<()> {
        fs::rename(&self.rt, from, to)
    }

    fn remove(&mut self, name: &str) -> Result<()> {
        fs::remove_file(&self.rt, name)
    }
}

/// Opens the null device in the place of each standard stream that is closed, so that no file which is opened
/// later stands there. A system opens under the least number that is free.
pub fn open_streams(rt: &HostRuntime) {
    for _ in 0..=LAST_STREAM {
        let Ok(file) = OpenOptions::new()
            .read(true)
            .write(true)
            .open(rt, NULL_DEVICE)
        else {
            return;
        };
        if file.as_raw_fd() > LAST_STREAM {
            return;
        }
        let _stays_open = file.into_raw_fd();
    }
}
