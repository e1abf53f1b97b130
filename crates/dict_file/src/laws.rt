//! Laws over the definitions: the function has an empty body, and its contract is the law.

ghost use Rattle.dict_file.specs.Laws.{RefusedIsWrong, OneFault, OneDictionary, Respelled};

/// The same bytes are never both the file of a dictionary and refused, are refused for at most one fault, and are the
/// file of at most one dictionary, in one version. So a dictionary's file is never refused. A dictionary that has a
/// file has one in version 2, if that isn't too long.
pub fn dictionary_is_read_once()
    ensures wrong { RefusedIsWrong }
    ensures fault { OneFault }
    ensures dictionary { OneDictionary }
    ensures respelled { Respelled }
{}
