// Places from which a function is called, its parameter L. One that is generic in its place has one caller for each, so that the
// compiler can put it there, however large it is.

/// Where steps are made inside one block.
pub struct Stepping;

/// Where blocks of local steps are gone through with no look back.
pub struct Gliding;

/// Where each landing is kept.
pub struct Keeping;
