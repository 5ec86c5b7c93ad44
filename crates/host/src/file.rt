// The verdict on a message file.
ghost use Rattle.std.specs.Prelude.{◌≡◌};
ghost use Rattle.message.specs.File.{verdict_of, refusal_of, offset_of};

use message::file;

// 0, or the number of the first refusal: 31 to 34.
#[unsafe(no_mangle)]
pub extern "C" fn emorizugu_file_refusal(file: &[u8]) -> u64
    ensures { result ≡ refusal_of (verdict_of file.now) }
{
    match file::check_file(file) {
        Ok(_) => 0,
        Err(refusal) => u64::from(refusal.cause),
    }
}

// The offset of the refused call, or the file's length.
#[unsafe(no_mangle)]
pub extern "C" fn emorizugu_file_offset(file: &[u8]) -> u64
    ensures { result ≡ offset_of (verdict_of file.now) }
{
    match file::check_file(file) {
        Ok(length) => length as u64,
        Err(refusal) => refusal.offset as u64,
    }
}
