// What stands in a part of a revolution stands in the whole revolution too.
ghost use Rattle.std.specs.Prelude.{◌≡◌, ◌≤◌, ◌+◌, ◌*◌, length};
ghost use Rattle.flop_base.specs.declared.key.Chrn.{Chrn};
ghost use Rattle.track_model.specs.Marks.{IsAddressMark};
ghost use Rattle.track_model.specs.Fields.{IsAddressAt, IsSizeCode, content_size};
ghost use Rattle.track_model.specs.Looks.{LookAt};
ghost use Rattle.track_model.specs.Sectors.{HasNoRunWithin};
ghost use Rattle.track_separator.specs.Parts.{IsPart};
ghost use Rattle.track_separator.specs.Waits.{HasNoDataMark, HasEnded, TellsWhole, IsUnfinished};
ghost use Rattle.track_separator.specs.Lifts.{look_of};

use flop_base::Chrn;
use track_model::Look;

/// An address mark of a part of the revolution is one of the revolution.
pub fn address_mark_stays(_fed: &[u16], _turn: &[u16], _place: usize)
    requires part { IsPart _fed.now _turn.now }
    requires mark { IsAddressMark _fed.now _place }
    ensures { IsAddressMark _turn.now _place }
{}

/// An address field of a part of the revolution is one of the revolution.
pub fn address_field_stays(_fed: &[u16], _turn: &[u16], _place: usize, _key: Chrn)
    requires part { IsPart _fed.now _turn.now }
    requires address { IsAddressAt _fed.now _place _key }
    ensures { IsAddressAt _turn.now _place _key }
{}

/// A Clear address field of the revolution is one of each part that has all its cells.
pub fn clear_field_stood(_fed: &[u16], _turn: &[u16], _place: usize, _key: Chrn)
    requires part { IsPart _fed.now _turn.now }
    requires inside { _place + 160 ≤ 16 * length _fed.now }
    requires address { IsAddressAt _turn.now _place _key }
    requires clear { HasNoRunWithin _turn.now _place }
    ensures address { IsAddressAt _fed.now _place _key }
    ensures clear { HasNoRunWithin _fed.now _place }
{}

/// A data field that is over in a part of the revolution says what the look at its address field finds in the whole
/// revolution.
pub fn data_field_stays(
    _fed: &[u16],
    _turn: &[u16],
    _place: usize,
    _mark: usize,
    _n: u8,
    _size: usize,
    _deleted: bool,
    _good: bool,
)
    requires part { IsPart _fed.now _turn.now }
    requires coded { IsSizeCode _n }
    requires sized { _size ≡ content_size _n }
    requires ended { HasEnded _fed.now _place _mark _deleted _size }
    requires tells { TellsWhole _fed.now _mark _size _good }
    ensures { LookAt _turn.now _place _n (look_of _good _deleted (_mark + 64)) }
{}

/// If a part of the revolution has no data mark for an address field, and none can come any more, the whole revolution
/// has none.
pub fn no_data_mark_stays(_fed: &[u16], _turn: &[u16], _place: usize, _n: u8)
    requires part { IsPart _fed.now _turn.now }
    requires over { HasNoDataMark _fed.now _place }
    ensures { LookAt _turn.now _place _n Look.NoData }
{}

/// A data field that the index cuts off isn't one of the revolution.
pub fn unfinished_field_is_none(_turn: &[u16], _place: usize, _n: u8, _size: usize)
    requires sized { _size ≡ content_size _n }
    requires over { IsUnfinished _turn.now _place _size }
    ensures { LookAt _turn.now _place _n Look.NoData }
{}
