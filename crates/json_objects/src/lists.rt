//! Lists as JSON.
ghost use Rattle.std.specs.Prelude.{◌≡◌, OnOk, map};
ghost use Rattle.std.specs.String.{string_bytes};
ghost use Rattle.json_objects.specs.Data.{WritesData, number_list, text_list};

use json::Writer;
use std::alloc::AllocError;

/// Writes a list of texts.
pub fn write_texts(texts: &[String], out: &mut Writer) -> Result<(), AllocError>
    ensures ok { OnOk result
        (WritesData (text_list (map string_bytes texts.now)) out.old out.new) }
    ensures before { out.new.before ≡ out.old.before }
{
    out.begin_array()?;
    for one in texts {
        out.string(one.as_str())?;
    }
    out.end_array()
}

/// Writes a list of numbers of one byte.
pub fn write_codes(codes: &[u8], out: &mut Writer) -> Result<(), AllocError>
    ensures ok { OnOk result (WritesData (number_list codes.now) out.old out.new) }
    ensures before { out.new.before ≡ out.old.before }
{
    out.begin_array()?;
    for one in codes {
        out.u64(u64::from(*one))?;
    }
    out.end_array()
}

/// Writes a list of numbers.
pub fn write_numbers(numbers: &[u64], out: &mut Writer) -> Result<(), AllocError>
    ensures ok { OnOk result (WritesData (number_list numbers.now) out.old out.new) }
    ensures before { out.new.before ≡ out.old.before }
{
    out.begin_array()?;
    for one in numbers {
        out.u64(*one)?;
    }
    out.end_array()
}
