// Laws of files of records. A law stands on a function that does nothing.
ghost use Rattle.aas_journal.specs.Laws.{HaveOneCondition, HaveOneList};

/// Three files are the image of one list of payloads at most.
pub fn have_one_list()
    ensures { HaveOneList }
{}

/// Three files are an image, not initialised, or damaged at one place, and of these one at most.
pub fn have_one_condition()
    ensures { HaveOneCondition }
{}
