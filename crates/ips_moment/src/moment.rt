//! Moments as timestamps.

ghost use Rattle.std.specs.Prelude.{◌≡◌, ◌++◌, ◌*◌, ◌<◌, pos, IfOk, OnOk, string_bytes};
ghost use Rattle.jiff_core.specs.DateTime.{civil_nanos};
ghost use Rattle.ips_fmri.specs.Version.{IsStamp, pair, stamp_text};
ghost use Rattle.ips_moment.specs.Moment.{IsMomentText, stamp_number};

use ips_text::Text;
use jiff::Timestamp;
use jiff::civil::DateTime;
use jiff::tz::Offset;
use std::alloc::{AllocError, Global};

/// The text of a moment, so many seconds after the first of January 1970 in UTC, as YYYYMMDDTHHMMSSZ.
pub fn moment_text(alloc: Global, moment: u64) -> Result<Text, AllocError>
    requires { moment < 253370764800 }
    ensures { IfOk result (IsMomentText moment) }
{
    let stamp = stamp_of(clock_at(moment));
    let mut out = String::new(alloc);
    push_stamp(&mut out, stamp)?;
    Ok(Text::from_string(out))
}

// What a clock in UTC shows then.
fn clock_at(moment: u64) -> DateTime
    requires { moment < 253370764800 }
    ensures { civil_nanos result ≡ pos (moment * 1_000_000_000) }
{
    match Timestamp::from_second(moment as i64) {
        Ok(timestamp) => Offset::UTC.to_datetime(timestamp),
        Err(_) => unreachable!(),
    }
}

// The number of its digits.
fn stamp_of(clock: DateTime) -> u64
    ensures number { result ≡ stamp_number clock }
    ensures stamp { IsStamp result }
{
    let year = clock.year().unsigned_abs() as u64;
    let month = clock.month() as u64;
    let day = clock.day() as u64;
    let hour = clock.hour() as u64;
    let minute = clock.minute() as u64;
    let second = clock.second() as u64;
    let date = year * 10_000 + month * 100 + day;
    let time = hour * 10_000 + minute * 100 + second;
    date * 1_000_000 + time
}

// Writes a timestamp.
fn push_stamp(out: &mut String, stamp: u64) -> Result<(), AllocError>
    ensures { OnOk result (string_bytes out.new ≡ string_bytes out.old ++ stamp_text stamp) }
{
    push_pair(out, stamp / 1_000_000_000_000 % 100)?;
    push_pair(out, stamp / 10_000_000_000 % 100)?;
    push_pair(out, stamp / 100_000_000 % 100)?;
    push_pair(out, stamp / 1_000_000 % 100)?;
    out.push_str("T")?;
    push_pair(out, stamp / 10_000 % 100)?;
    push_pair(out, stamp / 100 % 100)?;
    push_pair(out, stamp % 100)?;
    out.push_str("Z")?;
    Ok(())
}

// Writes two digits.
fn push_pair(out: &mut String, number: u64) -> Result<(), AllocError>
    requires { number < 100 }
    ensures { OnOk result (string_bytes out.new ≡ string_bytes out.old ++ pair number) }
{
    out.push(char::from(b'0' + (number / 10) as u8))?;
    out.push(char::from(b'0' + (number % 10) as u8))
}
