//! What is told of all that was released.

ghost use Rattle.driver.specs.Telling.{BookReleasedIsTold, ReleasedIsTold};

use handler::Handler;

/// A new host was driven. There is a book for which it stands then, whose history is legal, and for each unit the
/// outputs that were told, in output lines and in the replies to its own `release` lines, are in order exactly those
/// that the unit released. So the headline holds of them: none is withdrawn, and none is told twice.
pub fn released_is_told<H: Handler>()
    ensures { ReleasedIsTold H.meaning }
{}

/// The same of a new book that was driven, whose history is legal as that of each book is.
pub fn book_released_is_told<H: Handler>()
    ensures { BookReleasedIsTold H.meaning }
{}
