//! The time of an image: by the clock, or by SOURCE_DATE_EPOCH.

use std::env::{Env, FillError};
use std::io;
use std::test::Fail;
use std::time::{Clock, Duration};
use uimg_tool::{epoch, now};

// An environment of one variable.
#[derive(Drop)]
struct OneVariable<'a> {
    name: &'a str,
    value: &'a [u8],
}

impl<'a> Env for OneVariable<'a> {
    fn arg(&self, _i: usize, _buf: &mut [u8]) -> Result<usize, FillError> {
        Err(FillError::NotPresent)
    }

    fn var(&self, name: &str, buf: &mut [u8]) -> Result<usize, FillError> {
        if name != self.name {
            return Err(FillError::NotPresent);
        }
        if buf.len() < self.value.len() {
            return Err(FillError::TooLong);
        }
        buf[..self.value.len()].copy_from_slice(self.value);
        Ok(self.value.len())
    }

    fn var_at(&self, _i: usize, _buf: &mut [u8]) -> Result<usize, FillError> {
        Err(FillError::NotPresent)
    }
}

// A clock that does not advance, or cannot be read.
#[derive(Drop)]
struct StandingClock {
    seconds: Option<u64>,
}

impl Clock for StandingClock {
    fn monotonic(&self) -> io::Result<Duration> {
        self.since_1970()
    }

    fn since_1970(&self) -> io::Result<Duration> {
        match self.seconds {
            Some(seconds) => Ok(Duration::new(seconds, 999_999_999)),
            None => Err(io::Error::from(io::ErrorKind::Other)),
        }
    }
}

#[test]
fn the_epoch_is_read_from_its_variable(rt: HostRuntime) -> Result<(), Fail> {
    let cases: [(&str, &[u8], Option<&str>); 5] = [
        ("SOURCE_DATE_EPOCH", b"1700000000", Some("1700000000")),
        ("SOURCE_DATE_EPOCH", b"", Some("")),
        ("SOURCE_DATE_EPOCH", b"\xff1", Some("")),
        ("SOURCE_DATE_EPOC", b"5", None),
        ("source_date_epoch", b"5", None),
    ];
    for (name, value, text) in cases {
        let environment = (OneVariable { name, value }, rt.alloc());
        assert_eq!(rt; epoch(&environment)?.as_deref(), text);
    }
    Ok(())
}

// Fractions of a second are cut; times after 2106-02-07 become the last one in 32 bits.
#[test]
fn the_clock_gives_whole_seconds(rt: HostRuntime) {
    for (seconds, moment) in [
        (Some(0), Some(0)),
        (Some(1_700_000_000), Some(1_700_000_000)),
        (Some(4294967295), Some(4294967295)),
        (Some(4294967296), Some(4294967295)),
        (None, None),
    ] {
        assert_eq!(rt; now(&StandingClock { seconds }), moment);
    }
}
