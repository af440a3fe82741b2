//! The form of the reports of an instance.

ghost use Rattle.std.specs.Prelude.{◌≡◌, ◌^◌, ◌≤◌};
ghost use Rattle.cts_instance.specs.Validity.{IsValid};
ghost use Rattle.cts_report.specs.Lines.{title_line};
ghost use Rattle.cts_report_reader.specs.Forms.{arrival_count, form_of, tells_arrivals};

use cts_instance::{Instance, Version};

/// The form of a report: what has to be known of its instance to read it.
#[derive(Clone, Copy)]
pub struct Form {
    /// The version of the instance, which says whether arrivals are told.
    pub version: Version,
    /// The number of buffers in its library.
    pub buffers: u64,
}

/// The form of the reports of this instance.
pub fn form_of(instance: &Instance) -> Form
    ensures same { result ≡ form_of instance.now }
    ensures few { result.buffers ≤ 2 ^ 16 }
    ensures valid { IsValid instance.now }
{
    Form {
        version: instance.version(),
        buffers: instance.params().library.items().len() as u64,
    }
}

/// The first line of a report of this version.
pub fn title(version: Version) -> &'static [u8]
    ensures { result.now ≡ title_line version }
{
    match version {
        Version::One => b"cts report 1\n",
        Version::Two => b"cts report 2\n",
    }
}

/// Whether a report of this version tells the arrivals of leaves.
pub fn tells_arrivals(version: Version) -> bool
    ensures { result ≡ tells_arrivals version }
{
    match version {
        Version::One => false,
        Version::Two => true,
    }
}

/// How many lines of a report of this version tell the greatest and the least arrival.
pub fn arrival_count(version: Version) -> u32
    ensures same { result ≡ arrival_count version }
    ensures few { result ≤ 2 }
{
    match version {
        Version::One => 0,
        Version::Two => 2,
    }
}
