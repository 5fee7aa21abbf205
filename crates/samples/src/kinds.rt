// Values of some kinds, the widest among them, each in places that have room for any kind.
use crate::example::EXAMPLE;
use crate::in_sixteen;
use codec::coded::Coded;
use feeder::header::Header;
use model::fact::{Fact, Literal, Sign};
use std::test::Fail;

#[test]
fn values_in_sixteen_places(rt: HostRuntime) -> Result<(), Fail> {
    let wanted = Literal {
        sign: Sign::Positive,
        fact: Fact { number: 300 },
    };
    assert_eq!(rt;
        in_sixteen(&wanted.sign),
        [1, 0, 0, 0, 0, 0, 0, 0, 0, 0, 0, 0, 0, 0, 0, 0]
    );
    assert_eq!(rt;
        in_sixteen(&wanted),
        [1, 1, 44, 0, 0, 0, 0, 0, 0, 0, 0, 0, 0, 0, 0, 0]
    );
    let header = EXAMPLE.first_chunk().and_then(Header::from_array);
    assert_eq!(rt;
        header.map(|h| in_sixteen(&h)),
        Some([1, 2, 3, 3, 2, 1, 5, 2, 2, 0, 2, 0, 0, 0, 0, 0])
    );
    Ok(())
}
