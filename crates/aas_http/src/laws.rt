// Laws of the first request. A law stands on a function that does nothing.
ghost use Rattle.aas_http.specs.Laws.{BeginsWithOne, EndsUnfinished, FitsLimits, EndsByItself};

/// Bytes begin with one thing alone.
pub fn begins_with_one()
    ensures { BeginsWithOne }
{}

/// Where [`crate::next_request`] needs more bytes and none follow, the input begins with nothing if
/// it is blank, and else is bad.
pub fn ends_unfinished()
    ensures { EndsUnfinished }
{}

/// More bytes are needed only while they are fewer than 4,210,688.
pub fn fits_limits()
    ensures { FitsLimits }
{}

/// A whole request ends by itself, whatever follows it.
pub fn ends_by_itself()
    ensures { EndsByItself }
{}
