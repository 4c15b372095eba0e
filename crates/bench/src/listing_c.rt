// The lister. Its parts are whole words, so they are written through references.
ghost use Rattle.bench.specs.Listing.{ListsC};

use lister::Item;

pub fn laverockin_next(
    image: &[u8],
    at: usize,
    code: &mut u64,
    place: &mut usize,
    next: &mut usize,
) -> u64
    ensures { ListsC image.now at result code.new place.new next.new }
{
    match lister::next(image, at) {
        Ok(Some(item)) => {
            *code = u64::from(u8::from(item.code));
            *place = item.place;
            *next = item.next;
            0
        }
        Ok(None) => {
            *code = 0;
            *place = 0;
            *next = at;
            0
        }
        Err(refusal) => {
            *code = 0;
            *place = refusal.place();
            *next = at;
            u64::from(refusal.number())
        }
    }
}
