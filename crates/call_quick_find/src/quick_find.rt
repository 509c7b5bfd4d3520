// quick find: 12, 13, or the place and the entry of a name, with the number of directory blocks looked at.
ghost use Rattle.model.specs.Calls.{Call, Does};
ghost use Rattle.files.specs.Told.{told_quick_find};
ghost use Rattle.call_quick_find.specs.Opened.{Opened};

use files::{QuickFound, QuickRefusal, bad_name, first_entry};
use model::{Refusal, VolumeFacts};

pub fn serve_quick_find(
    image: &[u8],
    f: VolumeFacts,
    name: &[u8],
) -> Result<QuickFound, QuickRefusal>
    requires { Opened f image.now }
    ensures { Does (Call.quick_find name.now) image.now (told_quick_find result) image.now }
{
    if bad_name(name) {
        return Err(QuickRefusal::from(Refusal::BadName));
    }
    match directory::quick_locate(image, first_entry(f), name) {
        Some(found) => Ok(QuickFound {
            place: found.place as u64,
            entry: directory::read_entry(image, found.entry),
            looked: found.looked as u16,
        }),
        None => Err(QuickRefusal {
            refusal: Refusal::NotFound,
            looked: f.directory_length,
        }),
    }
}
