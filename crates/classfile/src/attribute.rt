// The parts of a Code attribute.
ghost use Rattle.std.specs.Prelude.{◌≡◌, true, ◌<◌, length};
ghost use Rattle.classfile.specs.Attribute.{table_end, whole, code_of, table_of};

fn table_end(a: &[u8]) -> usize
    ensures { result ≡ table_end a.now }
{
    let t = 14 + (ground::quad(a, 10) as usize);
    t + 2 + 8 * (ground::word(a, t) as usize)
}

pub(crate) fn whole(a: &[u8]) -> bool
    ensures { result ≡ whole a.now }
{
    (1 <= ground::quad(a, 10)) & (table_end(a) <= a.len())
}

pub(crate) fn code_of<'a>(a: &'a [u8]) -> &'a [u8]
    requires { whole a.now ≡ true }
    ensures { (result.now ≡ code_of a.now) × (length result.now < 4294967296) }
{
    let start = 14;
    let end = 14 + (ground::quad(a, 10) as usize);
    &a[start..end]
}

pub(crate) fn table_of<'a>(a: &'a [u8]) -> &'a [u8]
    requires { whole a.now ≡ true }
    ensures { result.now ≡ table_of a.now }
{
    let start = 14 + (ground::quad(a, 10) as usize) + 2;
    let end = table_end(a);
    &a[start..end]
}
