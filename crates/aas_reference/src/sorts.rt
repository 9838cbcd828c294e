/// Keys, as they are read and written.
pub struct Keys;

/// References, as they are read and written.
pub struct References;
