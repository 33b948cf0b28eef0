//! A watermark on one thread.

ghost use Rattle.std.specs.Prelude.{◌≡◌};

use pl_words::watermark::{Mark, ReadSeat, Watermark};
use std::alloc::{AllocError, Global};
use std::test::Fail;

/// Marks 4 and 8: 9 bytes wait, then 3. Answers whether it was writable before, between and after, the marks, and whether that
/// 9 bytes wait was news before it was set and after, and that none waits at first.
fn marking(alloc: Global) -> Result<([bool; 3], [Mark; 3], [bool; 3]), AllocError> {
    let (watermark, mut head, mut readers) = Watermark::new(alloc, 4, 8, 1)?;
    let Some(mut reader) = readers.pop() else {
        unreachable!()
    };
    let opening = watermark.look(&mut reader);
    let before = watermark.is_writable(&mut reader);
    let none = head.is_news(0, false);
    let news = head.is_news(9, true);
    watermark.set(&mut head, 9, true);
    let again = head.is_news(9, true);
    let between = watermark.is_writable(&mut reader);
    let first = watermark.look(&mut reader);
    watermark.set(&mut head, 3, false);
    let second = watermark.look(&mut reader);
    let after = watermark.is_writable(&mut reader);
    let looks = [opening, first, second];
    Ok(([before, between, after], looks, [news, again, none]))
}

#[test]
fn mark_versions(rt: HostRuntime) -> Result<(), Fail> {
    let (writable, marks, news) = marking(rt.alloc())?;
    assert_eq!(rt; writable, [true, false, true]);
    assert_eq!(rt; news, [true, false, false]);
    for (mark, version) in marks.iter().zip(0u64..3) {
        assert_eq!(rt; (mark.version, mark.unwritable), (version, version == 1));
    }
    Ok(())
}
