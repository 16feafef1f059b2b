// One component's structure, 71 bytes, gathered field by field. Byte places stand in specs/Structure.antt and in the constants below,
// and nowhere else.
#![tactic(auto)]

ghost use Rattle.std.specs.Prelude.{◌≡◌, ◌&&◌, ◌+◌, ◌<◌, cond, eqb, length};
ghost use Rattle.bits.specs.Bits.{blank};
ghost use Rattle.structure.specs.Structure.{structure_size, head_of, with_head, nth, with_nth, stored, place_of, next_place, is_next, goes_on, turn_of, gathering_head, completed_head, marked_head, late_of, beginning, gathered, spoiled, none_head, deletion, absence, said, certainly, good_head, complete, settled_head};

use field::Tdms;

// What is known of a structure beside its fields. Marks are bytes, and `last` is 0 or one more than a place: a map that is lent may hold
// any byte there, and 34 is told by `faults`.
#[derive(Clone, Copy, Default)]
pub struct Structure {
    pub fields: u8,
    pub whole: u8,
    pub links: u8,
    pub deleted: u8,
    pub late: u8,
    pub last: u8,
    pub certain: u8,
}

// What one more field does: it begins the structure anew, goes on with it, is one too many, shows that it is whole, or is known.
#[derive(Clone, Copy)]
pub enum Turn {
    Begins,
    Joins,
    Overflows,
    Completes,
    Known,
}

impl Structure {
    // As many fields as have room.
    pub const MOST: u8 = 8;

    pub const FIELDS: usize = 7;

    pub const FIELD: usize = 8;

    pub const SIZE: usize = Self::FIELDS + 8 * Self::FIELD;

    // The bits that no good head has set: in its first four bytes, number of fields and three marks, and in the next four, of which
    // only the first and the third are marks.
    pub const NEVER_LOW: u32 = 4278124272;

    pub const NEVER_HIGH: u32 = 16646398;

    #[tactic(auto, unfolding(crate::specs::Structure::head_of))]
    pub fn load(s: &[u8]) -> Self
        requires { length s.now ≡ structure_size }
        ensures { result ≡ head_of s.now }
    {
        Self {
            fields: s[0],
            whole: s[1],
            links: s[2],
            deleted: s[3],
            late: s[4],
            last: s[5],
            certain: s[6],
        }
    }

    // What is wrong with a head, 0 exactly if nothing is. The head is read as two numbers and all is tested at once, with no
    // branch, so that a loop over many heads tests several at a time. Of the fields, beside the marks: whole asks for one to eight of
    // them and deleted for none, so the number of fields with whole and nine times deleted is at most nine, and whole at most the
    // number of fields. Either shows in bit 4.
    pub fn faults(s: &[u8]) -> u32
        requires { length s.now ≡ structure_size }
        ensures { eqb result 0 ≡ good_head (head_of s.now) }
    {
        let low = runs::four_at(s, 0);
        let high = runs::four_at(s, 4);
        let fields = low % 256;
        let whole = low / 256 % 256;
        let deleted = low / 16777216;
        let many = fields + whole + 9 * deleted + 6;
        let few = 256 + fields - whole;
        low & Self::NEVER_LOW | high & Self::NEVER_HIGH | (many & 16 | few & 16)
    }

    // The same of a structure in force, which is never to be deleted.
    pub fn faults_in_force(s: &[u8]) -> u32
        requires { length s.now ≡ structure_size }
        ensures { eqb result 0 ≡ (good_head (head_of s.now) && eqb (head_of s.now).deleted 0) }
    {
        Self::faults(s) | Self::load(s).deleted as u32
    }

    // Puts the head into a structure, and touches no field.
    #[tactic(auto, unfolding(crate::specs::Structure::with_head, runs::specs::Part::put))]
    pub fn store(self, s: &mut [u8])
        requires { length s.old ≡ structure_size }
        ensures { s.new ≡ with_head self s.old }
    {
        s[0] = self.fields;
        s[1] = self.whole;
        s[2] = self.links;
        s[3] = self.deleted;
        s[4] = self.late;
        s[5] = self.last;
        s[6] = self.certain;
    }

    // Something is said of the component. Both tests are made, with no branch between them, here and in what a list asks of 256 components: with
    // `||` and `&&` it takes 1,165 ns and not 834.
    #[tactic(auto, unfolding(crate::specs::Structure::said))]
    pub fn said(self) -> bool
        ensures { result ≡ said self }
    {
        (0 < self.fields) | (self.deleted == 1)
    }

    // The component is there for certain.
    #[tactic(auto, unfolding(crate::specs::Structure::certainly))]
    pub fn certainly(self) -> bool
        ensures { result ≡ certainly self }
    {
        self.certain == 1 && 0 < self.fields
    }

    // How many fields have room.
    #[tactic(auto, unfolding(crate::specs::Structure::stored))]
    pub fn stored(self) -> usize
        ensures { result ≡ stored self }
    {
        self.fields.min(Self::MOST) as usize
    }

    // The place of the field that comes next, of a whole structure.
    #[tactic(auto, unfolding(crate::specs::Structure::next_place))]
    fn next(self) -> usize
        ensures { result ≡ next_place self }
    {
        let last = self.last as usize;
        if last < self.stored() { last } else { 0 }
    }

    #[tactic(auto, unfolding(crate::specs::Structure::complete))]
    fn complete(self) -> bool
        ensures { result ≡ complete self }
    {
        (self.late == 0) & ((0 < self.fields) & (self.fields <= Self::MOST))
    }

    // As a change puts it in force: whole where nothing more can come.
    #[tactic(auto, unfolding(crate::specs::Structure::settled_head))]
    pub fn settled(self, sure: bool) -> Self
        ensures { result ≡ settled_head sure self }
    {
        let whole = if sure & self.complete() {
            1
        } else {
            self.whole
        };
        Self {
            whole,
            deleted: 0,
            last: 0,
            certain: if sure { self.certain } else { 0 },
            ..self
        }
    }

    // So many fields, of which it is not known whether they are all.
    #[tactic(auto, unfolding(crate::specs::Structure::gathering_head))]
    fn gathering(self, fields: u8, links: u8) -> Self
        ensures { result ≡ gathering_head fields links self }
    {
        Self {
            fields,
            links,
            late: self.late,
            certain: 1,
            ..Self::default()
        }
    }

    // The first field came again: they are all.
    #[tactic(auto, unfolding(crate::specs::Structure::completed_head))]
    fn completed(self, links: u8) -> Self
        ensures { result ≡ completed_head links self }
    {
        Self {
            fields: self.fields,
            whole: 1,
            links,
            last: 1,
            certain: 1,
            ..Self::default()
        }
    }

    // The same structure with other marks.
    #[tactic(auto, unfolding(crate::specs::Structure::marked_head))]
    pub fn marked(self, last: u8, certain: u8) -> Self
        ensures { result ≡ marked_head last certain self }
    {
        Self {
            last,
            certain,
            ..self
        }
    }

    #[tactic(auto, unfolding(crate::specs::Structure::late_of))]
    fn late_after(self) -> u8
        ensures { result ≡ late_of self }
    {
        u8::from(0 < self.fields)
    }
}

// Field k.
#[tactic(auto, unfolding(crate::specs::Structure::nth))]
pub fn nth(s: &[u8], k: usize) -> u64
    requires s_len { length s.now ≡ structure_size }
    requires k_bound { k < 8 }
    ensures { result ≡ nth k s.now }
{
    runs::eight_at(s, Structure::FIELDS + Structure::FIELD * k)
}

#[tactic(auto, unfolding(crate::specs::Structure::with_nth))]
fn put_nth(s: &mut [u8], k: usize, tdms: u64)
    requires s_len { length s.old ≡ structure_size }
    requires k_bound { k < 8 }
    ensures { s.new ≡ with_nth k tdms s.old }
{
    runs::put_eight(s, Structure::FIELDS + Structure::FIELD * k, tdms);
}

// The place of a field among the structure's. From the last to the first, so that no test ends it early.
fn place_of(s: &[u8], tdms: u64) -> usize
    requires { length s.now ≡ structure_size }
    ensures { result ≡ place_of s.now tdms }
{
    let stored = Structure::load(s).stored();
    let mut place = stored;
    for k in (0..stored).rev() {
        if nth(s, k) == tdms {
            place = k;
        }
    }
    place
}

// The field comes in turn, in a whole structure.
#[tactic(auto, unfolding(crate::specs::Structure::is_next, crate::specs::Structure::member))]
fn is_next(s: &[u8], tdms: u64) -> bool
    requires { length s.now ≡ structure_size }
    ensures { result ≡ is_next s.now tdms }
{
    let head = Structure::load(s);
    if head.last == 0 {
        return place_of(s, tdms) < head.stored();
    }
    nth(s, head.next()) == tdms
}

// The field goes on with the repetition that is being gathered.
#[tactic(auto, unfolding(crate::specs::Structure::goes_on))]
fn goes_on(s: &[u8], tdms: u64, links: u8) -> bool
    requires { length s.now ≡ structure_size }
    ensures { result ≡ goes_on s.now tdms links }
{
    let head = Structure::load(s);
    if head.fields == 0 {
        return false;
    }
    let last = nth(s, head.stored() - 1);
    head.links == links && Tdms::key(last) < Tdms::key(tdms)
}

// What one more field does.
#[tactic(auto, unfolding(crate::specs::Structure::turn_of))]
fn turn_of(s: &[u8], tdms: u64, links: u8) -> Turn
    requires { length s.now ≡ structure_size }
    ensures { result ≡ turn_of s.now tdms links }
{
    let head = Structure::load(s);
    if head.whole == 1 {
        return if is_next(s, tdms) {
            Turn::Known
        } else {
            Turn::Begins
        };
    }
    if goes_on(s, tdms, links) {
        return if head.fields < Structure::MOST {
            Turn::Joins
        } else {
            Turn::Overflows
        };
    }
    let first = nth(s, 0) == tdms;
    if 0 < head.fields && head.fields <= Structure::MOST && first {
        Turn::Completes
    } else {
        Turn::Begins
    }
}

// Begins the structure anew, with one field.
#[tactic(auto, unfolding(crate::specs::Structure::beginning))]
fn begin(s: &mut [u8], late: u8, certain: u8, tdms: u64, links: u8)
    requires { length s.old ≡ structure_size }
    ensures { s.new ≡ beginning late certain tdms links }
{
    runs::clear(s);
    Structure {
        fields: 1,
        links,
        late,
        certain,
        ..Structure::default()
    }
    .store(s);
    put_nth(s, 0, tdms);
}

// Takes one more field in.
#[tactic(auto, unfolding(crate::specs::Structure::gathered, crate::specs::Structure::turned))]
pub fn gather(s: &mut [u8], tdms: u64, links: u8)
    requires { length s.old ≡ structure_size }
    ensures { s.new ≡ gathered s.old tdms links }
{
    let head = Structure::load(s);
    match turn_of(s, tdms, links) {
        Turn::Begins => {
            begin(s, head.late_after(), 1, tdms, links);
        }
        Turn::Joins => {
            head.gathering(head.fields + 1, links).store(s);
            put_nth(s, head.fields as usize, tdms);
        }
        Turn::Overflows => {
            head.gathering(Structure::MOST + 1, links).store(s);
        }
        Turn::Completes => {
            head.completed(links).store(s);
        }
        Turn::Known => {
            let place = place_of(s, tdms);
            head.marked(place as u8 + 1, 1).store(s);
        }
    }
}

// What is being gathered may lack a field, and whatever comes begins it anew: no key is above that of all ones.
#[tactic(auto, unfolding(crate::specs::Structure::spoiled))]
pub fn spoil(s: &mut [u8])
    requires { length s.old ≡ structure_size }
    ensures { s.new ≡ spoiled s.old }
{
    let head = Structure::load(s);
    if head.whole == 0 && 0 < head.fields {
        begin(s, 1, head.certain, Tdms::END - 1, 0);
    } else {
        head.marked(0, head.certain).store(s);
    }
}

// No field: the component is to be deleted, or it is not there.
#[tactic(auto, unfolding(crate::specs::Structure::deletion, crate::specs::Structure::absence, crate::specs::Structure::none_head))]
pub fn none(s: &mut [u8], deleted: bool)
    requires { length s.old ≡ structure_size }
    ensures { s.new ≡ cond deleted deletion absence }
{
    runs::clear(s);
    Structure {
        deleted: u8::from(deleted),
        certain: 1,
        ..Structure::default()
    }
    .store(s);
}
