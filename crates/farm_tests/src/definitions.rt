//! Definitions that are built.

/// An exec op with a cache mount at `/go/pkg/mod`, which puts `x` into the file `a` of its folder.
#[derive(Clone, Copy)]
pub(crate) enum Op {
    /// Into the LOCKED folder.
    Put,
    /// Into the SHARED folder.
    PutShared,
    /// Into the PRIVATE folder.
    PutPrivate,
}

impl Op {
    /// Its definition, in hexadecimal. It is one of those in `printed/runs.cases`.
    pub(crate) fn definition(self) -> &'static str {
        match self {
            Op::Put => {
                "0a5812560a180a037075740a0b2f676f2f706b672f6d6f640a01610a0178120e08ffffffffffffffffff011a012f122a08ffffffffffffffffff011a0b2f676f2f706b672f6d6f6420ffffffffffffffffff013003a2010210020a4b0a490a477368613235363a33303962623866376639376665653961323566626230656130396236623232306138396464303463336231656361646235653733666533633163326538356334"
            }
            Op::PutShared => {
                "0a5812560a180a037075740a0b2f676f2f706b672f6d6f640a01610a0178120e08ffffffffffffffffff011a012f122a08ffffffffffffffffff011a0b2f676f2f706b672f6d6f6420ffffffffffffffffff013003a2010210000a4b0a490a477368613235363a66666133623265316666336432656636336162366334386163353338326335653161656335346164356335386432666163316232653361656363346662393036"
            }
            Op::PutPrivate => {
                "0a5812560a180a037075740a0b2f676f2f706b672f6d6f640a01610a0178120e08ffffffffffffffffff011a012f122a08ffffffffffffffffff011a0b2f676f2f706b672f6d6f6420ffffffffffffffffff013003a2010210010a4b0a490a477368613235363a66643334623137383062356238623136393137333933303935653961316637613131383037316464333138343461366437353736303130653537656466623639"
            }
        }
    }
}
